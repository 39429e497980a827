// The verifier, as functions with plain numbers: for Rust here, for C in lilivrez_verifier_c (include/lilivrez_verifier.h).
#![tactic(auto)]

ghost use Rattle.std.specs.Prelude.{◌≡◌};
ghost use Rattle.verdict.specs.Verdict.{verdict};
ghost use Rattle.version.specs.Version.{version_number};
ghost use Rattle.lilivrez_verifier.specs.VerdictNumbers.{verdict_number, verdict_values};

// Returns the number of the refusal, or 0 where the expression is accepted. Stores the offset of the refusal, the
// instruction count, the greatest height and the longest walk.
pub fn lilivrez_verify(expression: &[u8], out: &mut [u64; 4]) -> u32
    ensures number { result ≡ verdict_number (verdict expression.now) }
    ensures values { out.new ≡ verdict_values (verdict expression.now) }
{
    match verifier::verify(expression) {
        Err(refusal) => {
            *out = [refusal.offset as u64, 0, 0, 0];
            u32::from(refusal.reason.number())
        }
        Ok(accepted) => {
            let height = u64::from(accepted.greatest);
            *out = [0, accepted.count as u64, height, accepted.longest as u64];
            0
        }
    }
}

// The version of this archive.
pub fn lilivrez_verifier_version() -> u32
    ensures { result ≡ version_number }
{
    version::NUMBER
}
