//! The devices that lines are read from and their answers are written to.

// The traits.
pub mod sink;
pub mod source;

// Devices over slices, and over any reader or writer.
pub mod slice;
pub mod stream;

// A sink that collects bytes in a block.
pub mod block_writer;

// The record that a device keeps for contracts.
pub mod trace;
