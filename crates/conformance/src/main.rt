// The edges that document 01 lists behind P11, and those that paper 9 of document 02 sets for wide files and narrow writers, asked of the proved entries.
// A line each: what was asked, then 0 or the number of the refusal. All other vectors are lines of tests/vectors.
#![tactic(auto)]

use layouts::Form;
use std::io;

// A line: what was asked, of which number, and the answer.
fn line(rt: &impl Print, asked: &str, number: u64, answer: u64) -> io::Result<()> {
    println!(rt; "{asked}{number}: {answer}")
}

// The answer of reading a grid into tables that are long enough for every narrow one.
fn grid_read(file: &[u8]) -> u64 {
    let mut limits = [0u64; 64];
    let mut factors = [0i64; 12800];
    tariff::answer_number(grid_reading::read_grid(file, &mut limits, &mut factors))
}

// A narrow grid with no constraint.
fn narrow_nodes(rt: &impl Print, nodes: u8) -> io::Result<()> {
    let answer = grid_read(&[nodes, 0]);
    line(rt, "narrow grid, nodes ", nodes as u64, answer)
}

// A narrow grid of one node, its limits and factors 0. For 65 constraints the file is too short, but 3 comes before 5.
fn constraints(rt: &impl Print, count: u8) -> io::Result<()> {
    let mut file = [0u8; 362];
    file[0] = 1;
    file[1] = count % 128 * 2;
    line(
        rt,
        "narrow grid, constraints ",
        count as u64,
        grid_read(&file),
    )
}

// A wide grid with no constraint.
fn wide_nodes(rt: &impl Print, nodes: u64) -> io::Result<()> {
    let high = (nodes / 256 % 256) as u8;
    let low = (nodes % 256) as u8;
    let answer = grid_read(&[0, 1, high, low]);
    line(rt, "wide grid, nodes ", nodes, answer)
}

// A wide grid that ends within its node count.
fn three_bytes(rt: &impl Print) -> io::Result<()> {
    let answer = grid_read(&[0, 1, 15]);
    line(rt, "wide grid, bytes ", 3, answer)
}

// A narrow grid with no constraint, written.
fn grid_written(rt: &impl Print, nodes: usize) -> io::Result<()> {
    let mut file = [0u8; 4];
    let answer = grid_writing::write_grid(Form::Narrow, nodes, 0, &[], &[], &mut file);
    line(
        rt,
        "narrow grid written, nodes ",
        nodes as u64,
        tariff::answer_number(answer),
    )
}

// One on-peak price: 19 bits behind the period and the count, and five zero bits.
fn price(rt: &impl Print, price: u64) -> io::Result<()> {
    let high = (price / 2048 % 256) as u8;
    let middle = (price / 8 % 256) as u8;
    let low = (price % 8 * 32) as u8;
    let mut prices = [0u64; 1];
    let answer = price_reading::read_prices(1, &[129, high, middle, low], &mut prices);
    line(rt, "price ", price, tariff::answer_number(answer))
}

// A wide book of one contract, from node 3,999 to node 256, for a stated node count.
fn stated_nodes(rt: &impl Print, nodes: usize) -> io::Result<()> {
    let mut book = [0u64; 6];
    let file = b"\x00\x7f\xbf\xff\x9f\x10\x0f\x42\x40";
    let answer = book_reading::read_book(nodes, file, &mut book);
    line(
        rt,
        "wide book from node 3999, stated nodes ",
        nodes as u64,
        tariff::answer_number(answer),
    )
}

// A narrow book of one contract from node `source`, written for 4,000 nodes.
fn book_written(rt: &impl Print, source: u64) -> io::Result<()> {
    let mut file = [0u8; 8];
    let row = [0, 1, 7, source, 1, 5];
    let answer = book_writing::write_book(Form::Narrow, 4000, 1, &row, &mut file);
    line(
        rt,
        "narrow book written, source ",
        source,
        tariff::answer_number(answer),
    )
}

fn main(rt: HostRuntime) -> io::Result<()> {
    narrow_nodes(&rt, 200)?;
    narrow_nodes(&rt, 201)?;
    constraints(&rt, 64)?;
    constraints(&rt, 65)?;
    price(&rt, 500000)?;
    price(&rt, 500001)?;
    wide_nodes(&rt, 4000)?;
    wide_nodes(&rt, 4001)?;
    three_bytes(&rt)?;
    grid_written(&rt, 200)?;
    grid_written(&rt, 201)?;
    stated_nodes(&rt, 3999)?;
    stated_nodes(&rt, 4000)?;
    stated_nodes(&rt, 4001)?;
    book_written(&rt, 255)?;
    book_written(&rt, 256)
}
