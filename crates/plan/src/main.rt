#![tactic(auto)]
// The program `plan`: reads a network file from standard input and writes its plan, or the number of the refusal, to standard output.
// 131,072 bytes of input decide every file, and no text is longer.
// Stays: two buffers of no common places; the text is bytes already, and goes out as it is.
fn main() {
    let mut file = [0u8; 131072];
    let mut out = [0u8; 131072];
    let n = io::read_full(0, &mut file);
    let c = planning::plan(&file[..n], &mut out);
    io::write_all(1, &out[..c]);
}
