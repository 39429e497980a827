// Listings of some runs. What they must be is in the file stdout, written by hand from document 01.
#![tactic(auto)]

use command_steps::print_steps;
use console_output::{Console, print};
use machine::Inputs;
use memory::{Span, Target};

// On the working memory 41 00 42 at 4096, a buffer of 64 bytes and one register.
fn list(console: &Console, name: &[u8], code: &[u8], allowance: u64) {
    print(console, name);
    let registers = [7u64; 1];
    let work = [0x41u8, 0x00, 0x42];
    let inputs = Inputs {
        code,
        registers: &registers,
        target: Target {
            image: Span {
                first: 0,
                bytes: b"",
            },
            work: Span {
                first: 4096,
                bytes: &work,
            },
        },
        used: 0,
        tracepoint: 0,
    };
    print_steps(
        console,
        inputs,
        &[0; sizes::VARIABLE_COUNT],
        &[0; 64],
        allowance,
    );
}

fn main(rt: HostRuntime) {
    let console = &Console::new(rt);
    list(console, b"a sum\n", b"\x22\x05\x22\x03\x02\x27", 1024);
    list(
        console,
        b"a jump that is taken\n",
        b"\x22\x01\x20\x00\x08\x22\x07\x27\x27",
        1024,
    );
    list(
        console,
        b"a division by zero\n",
        b"\x22\x01\x22\x00\x05\x27",
        1024,
    );
    list(
        console,
        b"memory, a register and a variable\n",
        b"\x23\x10\x00\x0d\x02\x17\x26\x00\x00\x2d\x00\x03\x27",
        1024,
    );
    list(
        console,
        b"cells that have two readings\n",
        b"\x23\x10\x00\x25\x7f\xff\xff\xff\xff\xff\xff\xff\x22\x01\x02\x27",
        1024,
    );
    list(
        console,
        b"an allowance of 2\n",
        b"\x22\x05\x22\x03\x02\x27",
        2,
    );
    list(console, b"a refused expression\n", b"\x22\x01", 1024);
    list(
        console,
        b"more cells than a line has room for\n",
        b"\x25\xff\xff\xff\xff\xff\xff\xff\xff\x28\x28\x28\x28\x27",
        1024,
    );
}
