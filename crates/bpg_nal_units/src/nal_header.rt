// The two-byte header of a NAL unit (H.265, 7.3.1.2).
ghost use Rattle.std.specs.Prelude.{◌≡◌};
ghost use Rattle.bpg_nal_units.specs.Headers.{header_of};

#[derive(Clone, Copy)]
pub struct NalHeader {
    pub forbidden_zero_bit: bool,
    pub nal_unit_type: u8,
    pub nuh_layer_id: u8,
    pub nuh_temporal_id_plus1: u8,
}

impl NalHeader {
    // The header that the first two bytes of a unit are.
    pub fn of(first: u8, second: u8) -> NalHeader
        ensures { result ≡ header_of first second }
    {
        NalHeader {
            forbidden_zero_bit: 128 <= first,
            nal_unit_type: first / 2 % 64,
            nuh_layer_id: first % 2 * 32 + second / 8,
            nuh_temporal_id_plus1: second % 8,
        }
    }
}
