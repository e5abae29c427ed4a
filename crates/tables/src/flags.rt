// Tables of flags, one for each row or obligation: how many have one, and their numbers written out.
ghost use Rattle.std.specs.Prelude.{◌≡◌, ◌++◌, ◌+◌, ◌≤◌, length, drop};
ghost use Rattle.definition.specs.02-Ranges.{members};
ghost use Rattle.tables.specs.Sets.{marks as marks_of};

// How many of the first `n` are marked.
pub fn count_marked(flags: &[bool], n: usize) -> usize
    requires { n ≤ length flags.now }
    ensures { (result ≡ length (members (marks_of flags.now) n 0)) × (result ≤ n) }
{
    flags[..n].iter().filter(|marked| **marked).count()
}

// The numbers of the first `n` that are marked, ascending, into the first entries of `room`. The others stay.
pub fn write_marked(room: &mut [u16], flags: &[bool], n: usize)
    requires { (n ≤ length flags.now) × (n ≤ 65535) × (length (members (marks_of flags.now) n 0) ≤ length room.old) }
    ensures { room.new ≡ members (marks_of flags.now) n 0 ++ drop (length (members (marks_of flags.now) n 0)) room.old }
{
    let mut at: usize = 0;
    for (k, marked) in flags[..n].iter().enumerate() {
        if *marked {
            room[at] = k as u16;
            at += 1;
        }
    }
}

// The two lists into the room: the obligations first, and the rows into the part behind them, which is all that their writer is lent.
pub fn write_lists(
    room: &mut [u16],
    duties: &[bool],
    obligations: usize,
    d: usize,
    cited: &[bool],
    rows: usize,
)
    requires obligations_in_bounds { (obligations ≤ length duties.now) × (obligations ≤ 65535) × (rows ≤ length cited.now) × (rows ≤ 65535) }
    requires d_value { (d ≡ length (members (marks_of duties.now) obligations 0)) × (d + length (members (marks_of cited.now) rows 0) ≤ length room.old) }
    ensures { room.new ≡ members (marks_of duties.now) obligations 0 ++ members (marks_of cited.now) rows 0 ++ drop (d + length (members (marks_of cited.now) rows 0)) room.old }
{
    write_marked(room, duties, obligations);
    write_marked(&mut room[d..], cited, rows);
}
