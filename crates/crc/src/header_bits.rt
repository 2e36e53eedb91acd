// A header's 70 bits as two numbers, since no number of Rattle has as many. No field crosses bit 30.
ghost use Rattle.std.specs.Prelude.{◌<◌, ◌^◌};
ghost use Rattle.crc.specs.Halves.{hi_width, lo_width};

// `hi` is header bits 0 to 29, `lo` header bits 30 to 69.
#[derive(Clone, Copy)]
pub struct HeaderBits {
    pub hi: u64,
    pub lo: u64,
    ghost hi_bound: { hi < 2 ^ hi_width },
    ghost lo_bound: { lo < 2 ^ lo_width },
}
