// Where the blocks of a stripe lie.
ghost use Rattle.std.specs.Prelude.{◌≡◌};
ghost use Rattle.layers.specs.Stripes.{home, striped_size as sized};

use crate::unit::Unit;

// The device of a stripe that has a block, and the block's number there.
#[derive(Clone, Copy, PartialEq, Eq, Debug)]
pub enum Home {
    First(u32),
    Second(u32),
}

// The most blocks of each device that a stripe uses.
const MOST: u32 = 524288;

impl Unit {
    // Where block `b` lies.
    pub fn home(self, b: u32) -> Home
        ensures { result ≡ home self b }
    {
        let unit = self.blocks();
        let run = b / unit;
        let block = unit * (run / 2) + b % unit;
        if run % 2 == 0 {
            Home::First(block)
        } else {
            Home::Second(block)
        }
    }

    // How many blocks a stripe has over devices of `first` and `second` blocks.
    pub fn striped_blocks(self, first: u32, second: u32) -> u32
        ensures { result ≡ sized self first second }
    {
        let unit = self.blocks();
        let fewer = first.min(second).min(MOST);
        2 * unit * (fewer / unit)
    }
}
