// The window of a picture, its rows, and its bars.

/// The cycles that a picture shows: from the first one up to the one behind the last one.
#[derive(Clone, Copy, PartialEq, Eq, Debug)]
pub struct View {
    pub first: u64,
    pub behind: u64,
}

/// The window of a picture, and how many tasks, devices and promises have their place in it.
#[derive(Clone, Copy, PartialEq, Eq, Debug)]
pub struct Canvas {
    pub view: View,
    pub tasks: u16,
    pub devices: u16,
    /// How many devices have a row for what is promised to them.
    pub promised: u16,
}

/// What a bar stands for.
#[derive(Clone, Copy, PartialEq, Eq, Debug)]
pub enum Look {
    /// A compatible interval.
    Compatible,
    /// A predictable interval, of which the execution phase lies above it.
    Predictable,
    /// An execution phase.
    Execution,
    /// Idle time.
    Idle,
    /// Time in which the bus is open to devices.
    Open,
    /// A transfer of a device.
    Device(u16),
}

/// A rectangle of the picture, in tenths of a unit.
#[derive(Clone, Copy, PartialEq, Eq, Debug)]
pub struct Bar {
    pub look: Look,
    /// Its left edge.
    pub x: u32,
    /// Its upper edge.
    pub y: u32,
    pub width: u32,
    pub height: u32,
}
