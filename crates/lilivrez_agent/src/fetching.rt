// Target memory: where the bytes of a range are.
ghost use Rattle.std.specs.Prelude.{◌≡◌};
ghost use Rattle.memory.specs.Spans.{target, target_of};
ghost use Rattle.memory.specs.Fetch.{fetch_refusal};
ghost use Rattle.lilivrez_agent.specs.Lent.{lent_at, fetch_values};

use memory::{Held, Memory, Span, Target};
use refusals::Reason;

// Where the `size` bytes at `address` are. Returns the number of the refusal, or 0. Stores the number of the span that
// lends them (0 none, 1 program image, 2 working memory) and the place of the first of them in that span. Every way
// out stores both: nothing is stored before it is known which. The parameters and `out` are flat, as C has them.
pub fn lilivrez_fetch<'a>(
    image_first: u64,
    image: &'a [u8],
    work_first: u64,
    work: &'a [u8],
    address: u64,
    size: u64,
    out: &mut [u64; 2],
) -> u32
    ensures number { result ≡ fetch_refusal (target image_first image.now work_first work.now) address size }
    ensures values { out.new ≡ fetch_values (lent_at (target image_first image.now work_first work.now) address size) }
{
    let target = Target {
        image: Span {
            first: image_first,
            bytes: image,
        },
        work: Span {
            first: work_first,
            bytes: work,
        },
    };
    match memory::spans_refusal_clearing(target, out) {
        Err(reason) => u32::from(reason.number()),
        Ok(memory) => fetch_from(memory, address, size, out),
    }
}

// The same of target memory that 12 and 13 allow.
fn fetch_from(memory: Memory, address: u64, size: u64, out: &mut [u64; 2]) -> u32
    ensures number { result ≡ fetch_refusal (target_of memory.entry.target) address size }
    ensures values { out.new ≡ fetch_values (lent_at (target_of memory.entry.target) address size) }
{
    if size == 0 {
        *out = [0, 0];
        return 0;
    }
    match memory.holder(address) {
        Some(Held::InImage(in_image)) => {
            if size <= memory.target.image.bytes.len() as u64 - in_image {
                *out = [1, in_image];
                return 0;
            }
        }
        Some(Held::InWork(in_work)) => {
            if size <= memory.target.work.bytes.len() as u64 - in_work {
                *out = [2, in_work];
                return 0;
            }
        }
        None => {}
    }
    *out = [0, 0];
    u32::from(Reason::RangeNotReadable.number())
}
