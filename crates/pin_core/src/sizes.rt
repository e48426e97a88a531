ghost use Rattle.std.specs.Prelude.{◌≡◌, ◌≤◌, ◌<◌};
ghost use Rattle.pin_core.specs.Buffers.{buffers, buffer_words, start, word_count, IsWithin};

/// How many buffers of each class a pool has, and how many credits there are in all.
#[derive(Clone, Copy)]
pub struct Sizes {
    pub small: u32,
    pub large: u32,
    pub credits: u64,
}

impl Sizes {
    /// How many data words the buffer has.
    pub fn room(&self, buffer: u32) -> u32
        ensures { result ≡ buffer_words self.now buffer }
    {
        if buffer < self.small { 64 } else { 512 }
    }

    /// The place of the buffer's first data word among the data words of all buffers.
    pub fn start(&self, buffer: u32) -> usize
        requires within { IsWithin self.now }
        requires near { buffer < buffers self.now }
        ensures { result ≡ start self.now buffer }
    {
        if buffer < self.small {
            64 * buffer as usize
        } else {
            64 * self.small as usize + 512 * (buffer - self.small) as usize
        }
    }

    /// How many data words all buffers have.
    pub fn word_count(&self) -> usize
        requires { IsWithin self.now }
        ensures { result ≡ word_count self.now }
    {
        64 * self.small as usize + 512 * self.large as usize
    }
}
