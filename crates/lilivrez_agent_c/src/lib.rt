// The agent as a static library, for C: include/lilivrez_agent.h says how it is called. Each function is that of the
// same name in lilivrez_agent.
#![tactic(auto)]

ghost use Rattle.std.specs.Prelude.{◌≡◌};
ghost use Rattle.version.specs.Version.{version_number};
ghost use Rattle.memory.specs.Spans.{target};
ghost use Rattle.memory.specs.Fetch.{fetch_refusal};
ghost use Rattle.lilivrez_agent.specs.Lent.{lent_at, fetch_values};
ghost use Rattle.machine.specs.Given.{given};
ghost use Rattle.machine.specs.Run.{default_allowance};
ghost use Rattle.lilivrez_agent.specs.RunValues.{RunNumbers};

// The version of this archive.
#[unsafe(no_mangle)]
pub extern "C" fn lilivrez_agent_version() -> u32
    ensures { result ≡ version_number }
{
    lilivrez_agent::lilivrez_agent_version()
}

// Where the `size` bytes at `address` are. Returns the number of the refusal, or 0. Stores the number of the span that
// lends them (0 none, 1 program image, 2 working memory) and the place of the first of them in that span. Every way
// out stores both: nothing is stored before it is known which.
#[unsafe(no_mangle)]
pub extern "C" fn lilivrez_fetch<'a>(
    image_first: u64,
    image: &'a [u8],
    work_first: u64,
    work: &'a [u8],
    address: u64,
    size: u64,
    out: &mut [u64; 2],
) -> u32
    ensures number { result ≡ fetch_refusal (target image_first image.now work_first work.now) address size }
    ensures values { out.new ≡ fetch_values (lent_at (target image_first image.now work_first work.now) address size) }
{
    lilivrez_agent::fetching::lilivrez_fetch(
        image_first,
        image,
        work_first,
        work,
        address,
        size,
        out,
    )
}

// Verifies the expression, checks the inputs, and runs it: at most `allowance` instructions. Returns the number of the
// refusal, or 0 where the run completed. Stores the offset of the refusal, the steps, the used length, how many cells
// the answer tells, the top and the cell beneath.
#[unsafe(no_mangle)]
pub extern "C" fn lilivrez_run<'a>(
    expression: &[u8],
    registers: &[u64],
    image_first: u64,
    image: &'a [u8],
    work_first: u64,
    work: &'a [u8],
    variables: &mut [u64; sizes::VARIABLE_COUNT],
    buffer: &mut [u8],
    used: usize,
    tracepoint: u16,
    allowance: u64,
    out: &mut [u64; 6],
) -> u32
    ensures { RunNumbers (given expression.now registers.now variables.old (target image_first image.now work_first work.now) tracepoint buffer.old used allowance) result out.new variables.new buffer.new }
{
    lilivrez_agent::running::lilivrez_run(
        expression,
        registers,
        image_first,
        image,
        work_first,
        work,
        variables,
        buffer,
        used,
        tracepoint,
        allowance,
        out,
    )
}

// The same without an allowance given: at most 1,024 instructions.
#[unsafe(no_mangle)]
pub extern "C" fn lilivrez_run_default<'a>(
    expression: &[u8],
    registers: &[u64],
    image_first: u64,
    image: &'a [u8],
    work_first: u64,
    work: &'a [u8],
    variables: &mut [u64; sizes::VARIABLE_COUNT],
    buffer: &mut [u8],
    used: usize,
    tracepoint: u16,
    out: &mut [u64; 6],
) -> u32
    ensures { RunNumbers (given expression.now registers.now variables.old (target image_first image.now work_first work.now) tracepoint buffer.old used default_allowance) result out.new variables.new buffer.new }
{
    lilivrez_agent::running::lilivrez_run_default(
        expression,
        registers,
        image_first,
        image,
        work_first,
        work,
        variables,
        buffer,
        used,
        tracepoint,
        out,
    )
}
