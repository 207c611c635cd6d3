ghost use Rattle.std.specs.Prelude.{◌≡◌, ◌↔◌, true};

use pdp_device::ReadyEnable;

/// The keyboard of the console terminal.
///
/// PDP-11 Peripherals Handbook, KL11.
#[derive(Clone, Copy)]
pub struct Keyboard {
    /// Ready is the handbook's done: a key has come since the buffer was last read.
    pub ready_enable: ReadyEnable,
    /// The last key.
    pub key: u8,
}

impl Keyboard {
    ghost use Rattle.pdp_console.specs.Keyboard.{key_struck, key_taken, keyboard_reset};
    ghost use Rattle.pdp_console.specs.Keyboard.{init_keyboard};

    /// Whether both are the same in all.
    pub fn is_same(&self, other: &Keyboard) -> bool
        ensures { (result ≡ true) ↔ (self.now ≡ other.now) }
    {
        self.key == other.key && self.ready_enable.is_same(&other.ready_enable)
    }

    /// A keyboard at power-up: not done, not enabled, with key 0 [7.7].
    pub fn init() -> Keyboard
        ensures { result ≡ init_keyboard }
    {
        Keyboard {
            ready_enable: ReadyEnable::init(false),
            key: 0,
        }
    }

    /// A key is struck: it is kept, and done is set. One that comes while done is set replaces the
    /// last [6.54].
    pub fn strike(&mut self, key: u8)
        ensures { self.new ≡ key_struck key self.old }
    {
        self.key = key;
        self.ready_enable.set_ready(true);
    }

    /// The last key is read: done is cleared.
    pub fn take(&mut self) -> u8
        ensures key { result ≡ self.old.key }
        ensures after { self.new ≡ key_taken self.old }
    {
        self.ready_enable.set_ready(false);
        self.key
    }

    /// RESET: done and enable are cleared and a request is dropped; the key stays [6.102] [6.108].
    pub fn reset(&mut self)
        ensures { self.new ≡ keyboard_reset self.old }
    {
        self.ready_enable = ReadyEnable::init(false);
    }
}
