//! Which translations are kept.

use pdp_kt11::{Access, Kt, KtRegister, Mode, PageNumber, Space};
use pdp_word::NoMemory;

/// Mapping is on. Page 0 of both modes has all of its length, and can be read and written; no other
/// page is resident.
fn mapped() -> Kt {
    let mut kt = Kt::at_power_up();
    kt.write_reg(
        KtRegister::Descriptor(Space::Kernel, PageNumber::P0),
        0o077406,
    );
    kt.write_reg(
        KtRegister::Descriptor(Space::User, PageNumber::P0),
        0o077406,
    );
    kt.write_reg(KtRegister::Status0, 1);
    kt
}

/// The same after a read and a write in page 0 of kernel mode and a read in that of user mode.
fn placed() -> Kt {
    let mut kt = mapped();
    let _read = kt.place(Mode::Kernel, 0o1000, Access::Read);
    let _write = kt.place(Mode::Kernel, 0o1002, Access::Write);
    let _user = kt.place(Mode::User, 0o1000, Access::Read);
    kt
}

/// How many of the eight pages of kernel mode and of the eight of user mode are held.
fn count_held(kt: &Kt) -> u32 {
    let mut count = 0_u32;
    for number in 0..8 {
        let page = PageNumber::numbered(number);
        let kernel = u32::from(kt.held(Mode::Kernel, page));
        let user = u32::from(kt.held(Mode::User, page));
        count = count.wrapping_add(kernel).wrapping_add(user);
    }
    count
}

#[test]
fn an_access_in_kernel_mode_holds_its_page(rt: HostRuntime) -> Result<(), NoMemory> {
    let mut kt = mapped();
    assert_eq!(rt; count_held(&kt), 0);
    assert_eq!(rt; kt.place(Mode::Kernel, 0o1000, Access::Read), Ok(0o1000));
    assert!(rt; kt.held(Mode::Kernel, PageNumber::P0));
    assert_eq!(rt; count_held(&kt), 1);
    Ok(())
}

#[test]
fn an_access_in_user_mode_holds_its_page(rt: HostRuntime) -> Result<(), NoMemory> {
    let mut kt = mapped();
    assert_eq!(rt; kt.place(Mode::User, 0o1000, Access::Write), Ok(0o1000));
    assert!(rt; kt.held(Mode::User, PageNumber::P0));
    assert_eq!(rt; count_held(&kt), 1);
    Ok(())
}

#[test]
fn an_aborted_access_holds_no_page(rt: HostRuntime) -> Result<(), NoMemory> {
    let mut kt = placed();
    assert!(rt; kt.place(Mode::User, 0o20000, Access::Read).is_err());
    assert!(rt; !kt.held(Mode::User, PageNumber::P1));
    assert_eq!(rt; count_held(&kt), 2);
    Ok(())
}

#[test]
fn a_write_to_a_register_leaves_nothing_held(rt: HostRuntime) -> Result<(), NoMemory> {
    let registers = [
        ("PAR", KtRegister::Address(Space::Kernel, PageNumber::P0)),
        ("PDR", KtRegister::Descriptor(Space::User, PageNumber::P0)),
        ("SR0", KtRegister::Status0),
    ];
    for (name, register) in registers {
        let mut kt = placed();
        assert_eq!(rt; count_held(&kt), 2);
        let word = kt.read_reg(register);
        kt.write_reg(register, word);
        assert_eq!(rt; count_held(&kt), 0, "{name}");
    }
    Ok(())
}

#[test]
fn reset_leaves_nothing_held(rt: HostRuntime) -> Result<(), NoMemory> {
    let mut kt = placed();
    assert_eq!(rt; count_held(&kt), 2);
    kt.reset();
    assert_eq!(rt; count_held(&kt), 0);
    Ok(())
}

/// A checkpoint keeps the registers alone.
#[test]
fn loaded_registers_hold_nothing(rt: HostRuntime) -> Result<(), NoMemory> {
    let kt = placed();
    assert_eq!(rt; count_held(&kt), 2);
    let loaded = Kt::over(kt.registers());
    assert!(rt; loaded.is_enabled());
    assert_eq!(rt; count_held(&loaded), 0);
    Ok(())
}
