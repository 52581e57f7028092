// Refusals 15, 17 and 16 of a header.
ghost use Rattle.std.specs.Prelude.{◌≡◌};
ghost use Rattle.bpg_refusal.specs.Outcomes.{outcome_at_zero};
ghost use Rattle.bpg_format.specs.Write.{check_header};

use bpg_format::Header;
use bpg_header_rules::rules;
use bpg_refusal::Reason;
use bpg_write_rules::coded;

// `depth` is the file's bit depth.
pub fn check(h: Header, depth: u8) -> Result<(), Reason>
    ensures { outcome_at_zero result ≡ check_header depth h }
{
    if !coded::fields_coded(h) {
        return Err(Reason::BadHeader);
    }
    if !rules::no_forbidden_bit(h) {
        return Err(Reason::ForbiddenBit);
    }
    if !rules::allowed(h, depth) {
        return Err(Reason::HevcRule);
    }
    Ok(())
}
