//! Tests of scripts: their output, their errors and their status.
mod ends;
mod runs;
mod scripts;
mod streams;
