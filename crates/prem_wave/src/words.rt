// Words as numbers: their bytes, the first one highest.

/// `done`: all jobs of a task that were released have ended.
pub const DONE: u64 = 0x646f6e65;

/// `released`: a job of a task is released, and the task hasn't the core.
pub const RELEASED: u64 = 0x72656c6561736564;

/// `switch`: the core switches to the task.
pub const SWITCH: u64 = 0x737769746368;

/// `compat`: a compatible interval.
pub const COMPATIBLE: u64 = 0x636f6d706174;

/// `memory`: a memory phase.
pub const MEMORY: u64 = 0x6d656d6f7279;

/// `exec`: an execution phase.
pub const EXECUTION: u64 = 0x65786563;

/// `wait`: behind an execution phase, up to the end of its interval.
pub const WAIT: u64 = 0x77616974;

/// `free`: nobody has the bus.
pub const FREE: u64 = 0x66726565;

/// `corefill`: the core has the bus, and a line comes from memory.
pub const CORE_FILL: u64 = 0x636f726566696c6c;

/// `coreback`: the core has the bus, and a dirty line goes back to memory.
pub const CORE_BACK: u64 = 0x636f72656261636b;

/// `device`: a device has the bus.
pub const DEVICE: u64 = 0x646576696365;

/// `put`: a device writes a line.
pub const PUT: u64 = 0x707574;

/// `get`: a device reads a line.
pub const GET: u64 = 0x676574;
