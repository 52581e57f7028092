// One segment at its place in a run.
ghost use Rattle.std.specs.Prelude.{◌≡◌, ◌+◌, ◌*◌, ◌≤◌, ◌<◌, length as count, drop, Some, None};
ghost use Rattle.bpg_codec.specs.Select.{select};
ghost use Rattle.bpg_segment_rules.specs.Segments.{opens, field as field_of};
ghost use Rattle.bpg_segment_reader.specs.Places.{PartAt};

// A payload found in a run: from `start` up to `end`, where its segment ends. An absent one is empty and stands where it was looked for: an Option would be
// no plainer, since the search goes on from `end` in both cases.
#[derive(Clone, Copy)]
pub struct Part {
    pub start: usize,
    pub end: usize,
}

impl Part {
    // No payload stands at `at`.
    fn absent(at: usize) -> Part
        ensures { result ≡ record { start = at; end = at } }
    {
        Part { start: at, end: at }
    }
}

// Two bytes, high byte first.
fn number(high: u8, low: u8) -> usize
    ensures { (result ≡ high * 256 + low) × (result < 65536) }
{
    usize::from(high) * 256 + usize::from(low)
}

// The length field of the segment with this marker that stands at `at`, whole.
fn field_at(run: &[u8], at: usize, marker: u8) -> Option<usize>
    requires { at ≤ count run.now }
    ensures { result ≡ select (opens marker (drop at run.now)) (Some (field_of (drop at run.now))) None }
{
    let left = run.len() - at;
    if left < 4 {
        return None;
    }
    if run[at] != 0xff {
        return None;
    }
    if run[at + 1] != marker {
        return None;
    }
    let field = number(run[at + 2], run[at + 3]);
    if field < 2 {
        return None;
    }
    if left - 2 < field {
        return None;
    }
    Some(field)
}

// The payload with this marker and prefix at `at`. An empty one makes no part.
pub(crate) fn part_at(run: &[u8], at: usize, marker: u8, prefix: &[u8]) -> Part
    requires at_bound { at ≤ count run.now }
    requires prefix_bound { count prefix.now ≤ 65533 }
    ensures { PartAt run.now at marker prefix.now result }
{
    let size = prefix.len();
    let Some(field) = field_at(run, at, marker) else {
        return Part::absent(at);
    };
    if field < size + 3 {
        return Part::absent(at);
    }
    let start = at + 4 + size;
    let same = &run[at + 4..start] == prefix;
    if !same {
        return Part::absent(at);
    }
    Part {
        start,
        end: at + 2 + field,
    }
}
