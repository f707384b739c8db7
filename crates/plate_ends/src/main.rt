// plate_ends (document 02, W-205): a list of stacks on standard input, the ends of their bands on standard output, or 15 alone.
// What is printed for a text is the crate stack_list's. No contract can say what is read or written. Of an input longer than every list
// one byte more than that is read: it is of another form already, whatever follows (`too_long` in stack_list/proofs/AnyList).
#![tactic(auto)]

fn main(rt: HostRuntime) {
    let mut text = [0u8; stack_list::INPUT_BYTES];
    let mut out = [0u8; stack_list::OUTPUT_BYTES];
    let n = stack_list::generate(
        fixed_input::read_full(&mut rt.reader(), &mut text),
        &mut out,
    );
    let _ = rt.write_all(&out[..n]);
}
