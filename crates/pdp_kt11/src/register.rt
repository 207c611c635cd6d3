ghost use Rattle.std.specs.Prelude.{◌≡◌, ◌≤◌};
ghost use Rattle.pdp_kt11.specs.Handbook.Kt.{kt_register_at, page_from};

use crate::apr::{PageNumber, Space};

/// A register of memory management.
///
/// DEC PDP-11/40 Processor Handbook (1972), Memory management.
#[derive(Clone, Copy)]
pub enum KtRegister {
    /// SR0, 777572.
    Status0,
    /// 777574, which reads 0; a write does nothing [6.50].
    Status1,
    /// SR2, 777576: the virtual address of the last instruction; a write does nothing [6.51].
    Status2,
    /// A page descriptor register: of kernel space 772300 to 772316, of user space 777600 to
    /// 777616.
    Descriptor(Space, PageNumber),
    /// A page address register: of kernel space 772340 to 772356, of user space 777640 to 777656.
    Address(Space, PageNumber),
}

impl KtRegister {
    /// The register at this physical address (bytes), if there is one; none is at an odd address.
    #[tactic(auto, unfolding(crate::specs::Handbook::Kt::kt_register_at))]
    pub fn at(address: u32) -> Option<KtRegister>
        ensures { result ≡ kt_register_at address }
    {
        if address % 2 == 1 {
            return None;
        }
        match address {
            0o777572 => Some(KtRegister::Status0),
            0o777574 => Some(KtRegister::Status1),
            0o777576 => Some(KtRegister::Status2),
            0o772300..=0o772316 => Some(KtRegister::Descriptor(
                Space::Kernel,
                page_from(0o772300, address),
            )),
            0o772340..=0o772356 => Some(KtRegister::Address(
                Space::Kernel,
                page_from(0o772340, address),
            )),
            0o777600..=0o777616 => Some(KtRegister::Descriptor(
                Space::User,
                page_from(0o777600, address),
            )),
            0o777640..=0o777656 => Some(KtRegister::Address(
                Space::User,
                page_from(0o777640, address),
            )),
            _ => None,
        }
    }
}

/// The page whose register is at this address, if that of page 0 is at the first.
fn page_from(first: u32, address: u32) -> PageNumber
    requires { first ≤ address }
    ensures { result ≡ page_from first address }
{
    PageNumber::numbered((address - first) / 2)
}
