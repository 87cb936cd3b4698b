// Reads a matrix file on standard input and prints its answer, or one line `refused N at P`, as document 01 says.
// Promises nothing of its own: the work is `tree::build`, and what is printed is compared with stored and independent output.
// Rests on tree, record and input; printing is std's. Where reading or printing fails, that is told on standard error and the status is 1.
#![tactic(auto)]

ghost use Rattle.std.specs.Prelude.{◌≡◌, ◌+◌, ◌*◌, ◌≤◌, length};

use record::number::{u16_at, u32_at, u64_at};
use std::io;

// Room for the largest matrix file and one byte more: what lies past that changes nothing.
fn file_room() -> [u8; 5713]
    ensures { length result ≡ 5713 }
{
    [0; 5713]
}

// Room for the largest answer.
fn answer_room() -> [u8; 6660]
    ensures { length result ≡ 6660 }
{
    [0; 6660]
}

// A number for each 1 of any matrix: 64 taxa times 256 columns have no more.
fn workspace_room() -> [i32; 16384]
    ensures { length result ≡ 16384 }
{
    [0; 16384]
}

fn say_group(rt: &impl Print, answer: &[u8], at: usize) -> io::Result<()>
    requires { at + 16 ≤ length answer.now }
{
    let set = u64_at(answer, at + 4);
    let cost = u32_at(answer, at + 12);
    println!(rt; "group {set:x} cost {cost}")
}

fn say_flips(rt: &impl Print, answer: &[u8], at: usize) -> io::Result<()>
    requires { at + 22 ≤ length answer.now }
{
    let column = u16_at(answer, at + 4);
    let raised = u64_at(answer, at + 6);
    let lowered = u64_at(answer, at + 14);
    println!(rt; "flip {column} raise {raised:x} lower {lowered:x}")
}

fn say_groups(rt: &impl Print, answer: &[u8], groups: usize) -> io::Result<()>
    requires { 16 + 16 * groups ≤ length answer.now }
{
    for i in 0..groups {
        say_group(rt, answer, 16 + 16 * i)?;
    }
    Ok(())
}

fn say_all_flips(rt: &impl Print, answer: &[u8], after: usize, flips: usize) -> io::Result<()>
    requires { after + 22 * flips ≤ length answer.now }
{
    for i in 0..flips {
        say_flips(rt, answer, after + 22 * i)?;
    }
    Ok(())
}

// The answer file at the start of a lent output. The tests only tell the checker what every answer meets.
fn say_answer(rt: &impl Print, answer: &[u8]) -> io::Result<()> {
    if answer.len() < 6660 {
        return Ok(());
    }
    let taxa = u16_at(answer, 4);
    let columns = u16_at(answer, 6);
    let total = u32_at(answer, 12);
    println!(rt; "taxa {taxa} columns {columns} total {total}")?;
    let groups = u16_at(answer, 8) as usize;
    let flips = u16_at(answer, 10) as usize;
    if groups > 63 {
        return Ok(());
    }
    if flips > 256 {
        return Ok(());
    }
    say_groups(rt, answer, groups)?;
    say_all_flips(rt, answer, 16 + 16 * groups, flips)
}

fn main(rt: HostRuntime) -> io::Result<()> {
    let mut file = file_room();
    let size = input::read_full(&mut rt.stdin(), &mut file)?;
    let mut workspace = workspace_room();
    let mut answer = answer_room();
    match tree::build(&file[..size], &mut workspace, &mut answer) {
        Ok(_) => say_answer(&rt, &answer),
        Err(why) => println!(rt; "{why}"),
    }
}
