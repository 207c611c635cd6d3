//! The bits of the registers of memory management, and the sizes of its pages: DEC PDP-11/40
//! Processor Handbook (1972), Memory management.

/// SR0, bit 15: an access to a page that isn't resident was aborted.
pub(crate) const SR0_NON_RESIDENT: u16 = 0o100000;

/// SR0, bit 14: an access outside the length of its page was aborted.
pub(crate) const SR0_LENGTH: u16 = 0o40000;

/// SR0, bit 13: a write to a read-only page was aborted.
pub(crate) const SR0_READ_ONLY: u16 = 0o20000;

/// SR0, the lowest of bits 6-5, the mode of the access that was aborted.
pub(crate) const SR0_MODE: u16 = 0o40;

/// SR0, the lowest of bits 3-1, its page.
pub(crate) const SR0_PAGE: u16 = 0o2;

/// SR0, bit 0: mapping is on.
pub(crate) const SR0_ENABLE: u16 = 0o1;

/// PDR, the lowest of bits 14-8, the length field.
pub(crate) const PDR_LENGTH: u16 = 0o400;

/// PDR, bit 6, W: a write went through the page.
pub(crate) const PDR_WRITTEN: u16 = 0o100;

/// PDR, bit 3: the page grows downward.
pub(crate) const PDR_DOWNWARD: u16 = 0o10;

/// PDR, the lowest of bits 2-1, the access control field.
pub(crate) const PDR_ACCESS: u16 = 0o2;

/// The virtual addresses (bytes) of a page.
pub(crate) const PAGE_BYTES: u16 = 0o20000;

/// The bytes of a block.
pub(crate) const BLOCK_BYTES: u16 = 0o100;

/// The words of a block.
pub(crate) const BLOCK_WORDS: u16 = 0o40;

/// The blocks of a page.
pub(crate) const BLOCKS_OF_PAGE: u16 = 0o200;

/// The physical addresses (bytes), of 18 bits.
pub(crate) const PHYSICAL_ADDRESSES: u32 = 0o1000000;

/// The physical words.
pub(crate) const PHYSICAL_WORDS: u32 = 0o400000;

/// The first virtual address of the I/O page while mapping is off.
pub(crate) const IO_PAGE: u32 = 0o160000;

/// How much higher the I/O page is on the bus than in virtual addresses.
pub(crate) const IO_PAGE_HIGHER: u32 = 0o600000;
