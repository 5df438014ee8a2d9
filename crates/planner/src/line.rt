// The lines of the program.
ghost use Rattle.std.specs.Prelude.{◌≡◌};
ghost use Rattle.bandwidth.specs.Free.{free_as};
ghost use Rattle.planner.specs.Question.{row_as};

use bandwidth::{Free, Unanswered};
use wire::Refusal;

// Standard output.
const OUTPUT: i32 = 1;

// A number and what stands behind it.
fn print_number(n: u64, behind: &[u8]) {
    io::print_decimal(OUTPUT, n);
    io::write_all(OUTPUT, behind);
}

fn print_signed(x: i32) {
    if x < 0 {
        io::write_all(OUTPUT, b"-");
    }
    print_number(u64::from(x.unsigned_abs()), b" ");
}

// The numbers of a line; what is not used is 0.
#[derive(Clone, Copy, Debug, PartialEq, Eq)]
struct Row {
    address: u64,
    ringlet0: i32,
    ringlet1: i32,
    result: u8,
    excess: bool,
}

fn row_of(answer: Result<Free, Unanswered>) -> Row
    ensures { row_as result ≡ free_as answer }
{
    match answer {
        Ok(free) => Row {
            address: 0,
            ringlet0: free.ringlet0,
            ringlet1: free.ringlet1,
            result: 0,
            excess: free.is_excess(),
        },
        Err(unanswered) => Row {
            address: match unanswered {
                Unanswered::Behind(address) => address,
                Unanswered::RateTooHigh | Unanswered::LevelTooLow => 0,
            },
            ringlet0: 0,
            ringlet1: 0,
            result: unanswered.into(),
            excess: false,
        },
    }
}

// Result, address, what is left of each ringlet, 1 if there is the defect else 0.
pub(crate) fn print_answer(answer: Result<Free, Unanswered>) {
    let row = row_of(answer);
    print_number(u64::from(row.result), b" ");
    print_number(row.address, b" ");
    print_signed(row.ringlet0);
    print_signed(row.ringlet1);
    print_number(u64::from(row.excess), b"\n");
}

// A record that was cut or had a wrong length: 2.
pub(crate) fn print_cut() {
    io::write_all(OUTPUT, b"2 0 0 0 0\n");
}

// Refused settings: the word and the number.
pub(crate) fn print_settings(refusal: Refusal) {
    io::write_all(OUTPUT, b"settings ");
    print_number(u64::from(u8::from(refusal)), b"\n");
}
