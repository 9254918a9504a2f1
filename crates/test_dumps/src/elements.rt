//! What is read of lines, lines of readers and of texts in pieces, and readers and writers under
//! their counts.
mod cutter;
mod ends;
mod lines;
mod reading;
mod sources;
