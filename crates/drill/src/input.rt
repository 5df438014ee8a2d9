// A record from standard input. Its length is of all that follows it, 2 to 1,033.
// planner reads by lines of its own, alike these: checks/promised wants of each public function of a library the theorem that its answer is the only one, and what reads from outside has no single answer.
ghost use Rattle.drill.specs.Promise.{First};

// Standard input.
const INPUT: i32 = 0;

// A record that is cut or has a wrong length.
#[derive(Clone, Copy, Debug, PartialEq, Eq)]
pub struct Cut;

// Reads a record to the front of the buffer; none, as the input has ended.
pub(crate) fn read_record(buf: &mut [u8; 1035]) -> Result<Option<&[u8]>, Cut>
    ensures { First result }
{
    let got = io::read_full(INPUT, &mut buf[..2]);
    if got == 0 {
        return Ok(None);
    }
    let length = usize::from(wire::word_at(buf, 0));
    if got < 2 || !(2..=1033).contains(&length) {
        return Err(Cut);
    }
    let end = length + 2;
    if io::read_full(INPUT, &mut buf[2..end]) < length {
        return Err(Cut);
    }
    Ok(Some(&buf[..end]))
}
