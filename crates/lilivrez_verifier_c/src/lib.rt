// The verifier as a static library, for C: include/lilivrez_verifier.h says how it is called. Each function is that of the
// same name in lilivrez_verifier.
#![tactic(auto)]

ghost use Rattle.std.specs.Prelude.{◌≡◌};
ghost use Rattle.verdict.specs.Verdict.{verdict};
ghost use Rattle.version.specs.Version.{version_number};
ghost use Rattle.lilivrez_verifier.specs.VerdictNumbers.{verdict_number, verdict_values};

// Returns the number of the refusal, or 0 where the expression is accepted. Stores the offset of the refusal, the
// instruction count, the greatest height and the longest walk.
#[unsafe(no_mangle)]
pub extern "C" fn lilivrez_verify(expression: &[u8], out: &mut [u64; 4]) -> u32
    ensures number { result ≡ verdict_number (verdict expression.now) }
    ensures values { out.new ≡ verdict_values (verdict expression.now) }
{
    lilivrez_verifier::lilivrez_verify(expression, out)
}

// The version of this archive.
#[unsafe(no_mangle)]
pub extern "C" fn lilivrez_verifier_version() -> u32
    ensures { result ≡ version_number }
{
    lilivrez_verifier::lilivrez_verifier_version()
}
