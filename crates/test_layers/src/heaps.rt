//! Tests of the double-ended priority queues.
mod comparisons;
mod examples;
mod heaps;
mod queues;
mod refusals;
