// Frames: where the bytes and the mark of an entry stand.
ghost use Rattle.std.specs.Prelude.{◌≡◌, length, replicate};
ghost use Rattle.row.specs.declared.frame.Mark.TheVariants.{Saved};
ghost use Rattle.row.specs.Entries.{is_saved as holds};
ghost use Rattle.row.specs.Frames.{filled, saved_frame as marked};

// Whether the device holds a block's bytes as the cache does.
#[derive(Clone, Copy, PartialEq, Eq, Debug)]
pub enum Mark {
    Saved,
    Unsaved,
}

impl Mark {
    // Whether the device has the bytes.
    pub fn is_saved(self) -> bool
        ensures { result ≡ holds self }
    {
        matches!(self, Mark::Saved)
    }
}

// What is told of an entry without its bytes.
#[derive(Clone, Copy, PartialEq, Eq, Debug)]
pub struct Tag {
    pub number: u32,
    pub mark: Mark,
}

// The bytes and the mark of one block.
#[derive(Clone, Copy)]
pub struct Frame {
    pub bytes: [u8; 256],
    pub mark: Mark,
}

impl Frame {
    // A frame of zero bytes.
    pub fn new() -> Frame
        ensures { result ≡ filled (replicate 256 0) Saved }
    {
        Frame {
            bytes: [0; 256],
            mark: Mark::Saved,
        }
    }

    // Writes a block and its mark into the frame.
    pub fn fill(&mut self, bytes: &[u8], mark: Mark)
        requires { length bytes.now ≡ 256 }
        ensures { self.new ≡ filled bytes.now mark }
    {
        self.bytes.copy_from_slice(bytes);
        self.mark = mark;
    }

    // Copies the frame's bytes into the buffer.
    pub fn copy_out(&self, buffer: &mut [u8])
        requires { length buffer.old ≡ 256 }
        ensures { buffer.new ≡ self.now.bytes }
    {
        buffer.copy_from_slice(&self.bytes);
    }

    // Marks the frame saved.
    pub fn save(&mut self)
        ensures { self.new ≡ marked self.old }
    {
        self.mark = Mark::Saved;
    }
}
