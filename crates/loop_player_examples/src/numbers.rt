// Numbers in bytes, high byte first; 0 past the end.
use bpg_cases::bytes_at;

pub(crate) fn number2(s: &[u8], at: usize) -> u16 {
    u16::from_be_bytes(bytes_at(s, at))
}

pub(crate) fn number4(s: &[u8], at: usize) -> u32 {
    u32::from_be_bytes(bytes_at(s, at))
}

pub(crate) fn number8(s: &[u8], at: usize) -> u64 {
    u64::from_be_bytes(bytes_at(s, at))
}

// Numbers of two bytes, as many as are asked for.
pub(crate) fn read_list(s: &[u8], list: &mut [u16]) {
    for (k, number) in list.iter_mut().enumerate() {
        *number = number2(s, k * 2);
    }
}
