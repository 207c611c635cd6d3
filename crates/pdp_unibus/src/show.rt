//! The registers of the bus, shown without the effect of a read.

mod device_registers;
mod page_registers;

pub use device_registers::{DeviceRegisters, SHOWN_REGISTERS};
pub use page_registers::PageRegisters;
