// One row of output.
use record::refusal::Refusal;
use std::io;

// The number that an answer stands for: its refusal's, or 0.
fn number_of<T: Drop>(said: Result<T, Refusal>) -> u32 {
    match said {
        Ok(_) => 0,
        Err(no) => no.number(),
    }
}

pub fn row<T: Drop>(rt: &impl Print, name: &str, said: Result<T, Refusal>) -> io::Result<()> {
    let number = number_of(said);
    println!(rt; "{name}: {number}")
}
