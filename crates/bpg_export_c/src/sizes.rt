// The size before the buffer.
ghost use Rattle.std.specs.Prelude.{◌≡◌};
ghost use Rattle.bpg_format.specs.Pictures.{canonical_size};
ghost use Rattle.bpg_import_list.specs.Calls.{size_answer};

#[unsafe(no_mangle)]
pub extern "C" fn bpg_write_size(numbers: &[u64], source: &[u8], count: &mut usize) -> u8
    ensures value { result ≡ (size_answer numbers.now source.now).status }
    ensures count_after { count.new ≡ (size_answer numbers.now source.now).count }
{
    bpg_export::bpg_write_size(numbers, source, count)
}

#[unsafe(no_mangle)]
pub extern "C" fn bpg_canonical_size(file: &[u8], count: &mut usize, offset: &mut usize) -> u8
    ensures value { result ≡ (canonical_size file.now).status }
    ensures count_after { count.new ≡ (canonical_size file.now).count }
    ensures offset_after { offset.new ≡ (canonical_size file.now).offset }
{
    bpg_export::bpg_canonical_size(file, count, offset)
}
