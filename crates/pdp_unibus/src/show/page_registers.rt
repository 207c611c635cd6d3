ghost use Rattle.std.specs.Prelude.{◌≡◌, length};
ghost use Rattle.pdp_kt11.specs.declared.register.KtRegister.TheVariants.{Address, Descriptor};
ghost use Rattle.pdp_io_page.specs.Handbook.Register.{value_in};
ghost use Rattle.pdp_unibus.specs.Handbook.Shown.{of_each_page, page_registers_of};
ghost use Rattle.pdp_io_page.specs.declared.register.Register.TheVariants.{Mapping};

use crate::bus::Bus;
use pdp_io_page::Register;
use pdp_kt11::{KtRegister, MappingRegisters, PageNumber, Space};
use pdp_store::Store;

/// The registers of memory management, as reads would give them (DEC PDP-11/40 Processor Handbook
/// (1972), Memory management): each list is by the number of the page.
#[derive(Clone, Copy)]
pub struct PageRegisters {
    /// SR0, 777572.
    pub status0: u16,
    /// SR2, 777576.
    pub status2: u16,
    /// The page descriptor registers of kernel space, 772300 to 772316.
    pub kernel_descriptors: [u16; 8],
    /// The page address registers of kernel space, 772340 to 772356.
    pub kernel_addresses: [u16; 8],
    /// The page descriptor registers of user space, 777600 to 777616.
    pub user_descriptors: [u16; 8],
    /// The page address registers of user space, 777640 to 777656.
    pub user_addresses: [u16; 8],
}

impl<S: Store, D: Store> Bus<S, D> {
    /// The registers of memory management as reads would give them (DEC PDP-11/40 Processor
    /// Handbook (1972), Memory management).
    #[tactic(auto, unfolding(crate::specs::Handbook::Shown::page_registers_of))]
    pub fn pages(&self) -> PageRegisters
        ensures { result ≡ page_registers_of self.now }
    {
        PageRegisters {
            status0: self.mapping(KtRegister::Status0),
            status2: self.mapping(KtRegister::Status2),
            kernel_descriptors: self.descriptors(Space::Kernel),
            kernel_addresses: self.addresses(Space::Kernel),
            user_descriptors: self.descriptors(Space::User),
            user_addresses: self.addresses(Space::User),
        }
    }

    /// Memory management, in its parts (DEC PDP-11/40 Processor Handbook (1972), Memory
    /// management).
    pub fn mapping_registers(&self) -> MappingRegisters
        ensures { result ≡ self.now.io_page.mapping }
    {
        self.io_page.mapping.registers()
    }

    // What a read of a register of memory management would give.
    fn mapping(&self, register: KtRegister) -> u16
        ensures { result ≡ value_in (Mapping register) (length self.now.drives) self.now.io_page }
    {
        self.value(Register::Mapping(register))
    }

    // The page descriptor registers of a space.
    fn descriptors(&self, space: Space) -> [u16; 8]
        ensures { result ≡ of_each_page (Descriptor space) (length self.now.drives)
            self.now.io_page }
    {
        [
            self.mapping(KtRegister::Descriptor(space, PageNumber::P0)),
            self.mapping(KtRegister::Descriptor(space, PageNumber::P1)),
            self.mapping(KtRegister::Descriptor(space, PageNumber::P2)),
            self.mapping(KtRegister::Descriptor(space, PageNumber::P3)),
            self.mapping(KtRegister::Descriptor(space, PageNumber::P4)),
            self.mapping(KtRegister::Descriptor(space, PageNumber::P5)),
            self.mapping(KtRegister::Descriptor(space, PageNumber::P6)),
            self.mapping(KtRegister::Descriptor(space, PageNumber::P7)),
        ]
    }

    // The page address registers of a space.
    fn addresses(&self, space: Space) -> [u16; 8]
        ensures { result ≡ of_each_page (Address space) (length self.now.drives) self.now.io_page }
    {
        [
            self.mapping(KtRegister::Address(space, PageNumber::P0)),
            self.mapping(KtRegister::Address(space, PageNumber::P1)),
            self.mapping(KtRegister::Address(space, PageNumber::P2)),
            self.mapping(KtRegister::Address(space, PageNumber::P3)),
            self.mapping(KtRegister::Address(space, PageNumber::P4)),
            self.mapping(KtRegister::Address(space, PageNumber::P5)),
            self.mapping(KtRegister::Address(space, PageNumber::P6)),
            self.mapping(KtRegister::Address(space, PageNumber::P7)),
        ]
    }
}
