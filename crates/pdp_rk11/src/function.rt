ghost use Rattle.std.specs.Prelude.{◌≡◌, ◌<◌};

/// What the RK11 is told to do, by bits 3-1 of RKCS.
///
/// PDP-11 Peripherals Handbook, RK11.
#[derive(Clone, Copy, PartialEq, Eq)]
pub enum Function {
    /// 0: as RESET, and at once.
    ControlReset,
    /// 1: words of core go to the drive.
    Write,
    /// 2: words of the drive go to core.
    Read,
    /// 3: words of core and of the drive are compared.
    WriteCheck,
    /// 4: the heads go to the cylinder.
    Seek,
    /// 5: words of the drive are read, and go nowhere.
    ReadCheck,
    /// 6: the drive is initialised.
    DriveReset,
    /// 7: the drive can't be written any more.
    WriteLock,
}

impl Function {
    ghost use Rattle.pdp_rk11.specs.Handbook.Completion.{names_sector};
    ghost use Rattle.pdp_rk11.specs.Handbook.Rk.{code_of, function_of};

    /// The function of a code, 0 to 7; a greater number stands for write lock.
    pub fn of_code(code: u16) -> Function
        ensures { result ≡ function_of code }
    {
        match code {
            0 => Function::ControlReset,
            1 => Function::Write,
            2 => Function::Read,
            3 => Function::WriteCheck,
            4 => Function::Seek,
            5 => Function::ReadCheck,
            6 => Function::DriveReset,
            _ => Function::WriteLock,
        }
    }

    /// Its code, 0 to 7.
    pub fn code(self) -> u16
        ensures value { result ≡ code_of self }
        ensures fits { result < 8 }
    {
        match self {
            Function::ControlReset => 0,
            Function::Write => 1,
            Function::Read => 2,
            Function::WriteCheck => 3,
            Function::Seek => 4,
            Function::ReadCheck => 5,
            Function::DriveReset => 6,
            Function::WriteLock => 7,
        }
    }

    /// Whether it names a sector: write, read, write check, seek and read check do.
    pub(crate) fn names_sector(self) -> bool
        ensures { result ≡ names_sector self }
    {
        match self {
            Function::Write
            | Function::Read
            | Function::WriteCheck
            | Function::Seek
            | Function::ReadCheck => true,
            Function::ControlReset | Function::DriveReset | Function::WriteLock => false,
        }
    }
}
