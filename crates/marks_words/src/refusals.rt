// Refusals in words.
use rules::Refusal;
use std::io;

// What a refusal of a dump means. 10 names an identifier only where a change has one that is not declared. A dump's refusal is the number that C is given, in
// `Loaded` of dump_load: an enum of it here would only be turned into these words.
fn print_reason(rt: &impl Print, refusal: u32, identifier: u64) -> io::Result<()> {
    match refusal {
        10 if identifier == 0 => rt.print("the text is ill-formed"),
        10 => {
            rt.print("an undeclared identifier: ")?;
            print_identifier(rt, identifier)
        }
        11 => rt.print("scopes are more than 32 deep"),
        12 => rt.print(
            "more than 1,024 $var commands, a code of more than 8 characters, or a width above 4,096",
        ),
        13 => rt.print("the clock or a connected wire is not declared, or has no such index"),
        14 => rt.print("a time stamp goes back"),
        _ => rt.print("more than 65,536 samples"),
    }
}

// The characters of an identifier code, the first one lowest. They need not be text.
fn print_identifier(rt: &impl Print, identifier: u64) -> io::Result<()> {
    let code = identifier.to_le_bytes();
    let length = 8 - (identifier.leading_zeros() / 8) as usize;
    rt.write_all(&code[..length])
}

// The refusal of a dump, with its line, and its identifier or 0.
pub fn print_refusal(rt: &impl Print, refusal: u32, line: u64, identifier: u64) -> io::Result<()> {
    print!(rt; "refused with {refusal}, line {line}: ")?;
    print_reason(rt, refusal, identifier)?;
    rt.print("\n")
}

// The refusal of the checker.
pub fn print_config_refusal(rt: &impl Print, refusal: Refusal) -> io::Result<()> {
    let number = refusal.number();
    let reason = match refusal {
        Refusal::Kind => "the kind is above 8",
        Refusal::Limits => "n, min or the severity is outside its limits",
        _ => "a port or the expected value does not fit the kind",
    };
    println!(rt; "refused with {number}: {reason}")
}
