// Answers cases of keys from standard input, one to a line. The cases and the expected answers come from tools/keys_table.py.
#![tactic(auto)]

mod reading;
mod showing;

use anyhow::anyhow;
use keys::{
    Decimal, Direction, KeyFault, MAX_KEY, Plan, Record, Sign, Value, check_key, read_column,
    write_key,
};
use reading::{bytes_of, columns_of, digits_of};
use refusals::Refusal;
use showing::{Hex, Shown};
use std::io::{BufRead, BufReader};

fn main(rt: HostRuntime) -> anyhow::Result<()> {
    run(&rt)
}

fn run(rt: &HostRuntime) -> anyhow::Result<()> {
    for line in BufReader::new(rt.alloc(), rt.stdin())?.lines(rt.alloc()) {
        let line = line?;
        let mut words = line.as_str().split_whitespace();
        let kind = words.next().unwrap_or("");
        let first = words.next().unwrap_or("");
        let second = words.next().unwrap_or("");
        let third = words.next().unwrap_or("");
        match kind {
            "check" => check(rt, first, second)?,
            "decimal" => decimal(rt, first, second, third)?,
            "column" => column(rt, first, second, third, words.next().unwrap_or(""))?,
            _ => return Err(anyhow!("no such case")),
        }
    }
    Ok(())
}

// Prints whether the bytes are a key.
fn check(rt: &HostRuntime, plan: &str, bytes: &str) -> anyhow::Result<()> {
    let columns = columns_of(rt.alloc(), plan)?;
    let bytes = bytes_of(rt.alloc(), bytes)?;
    match checked(columns.as_slice(), bytes.as_slice()) {
        Ok(()) => println!(rt; "ok")?,
        Err(fault) => println!(rt; "no {}", fault.refused())?,
    }
    Ok(())
}

fn checked(columns: &[Direction], bytes: &[u8]) -> Result<(), KeyFault> {
    let plan = Plan::new(columns)?;
    check_key(&plan, bytes)
}

// Prints the key of a decimal in one ascending column.
fn decimal(rt: &HostRuntime, sign: &str, exponent: &str, digits: &str) -> anyhow::Result<()> {
    let sign = if sign == "-" {
        Sign::Negative
    } else {
        Sign::Positive
    };
    let exponent = exponent.parse::<i32>()?;
    let digits = digits_of(rt.alloc(), digits)?;
    let mut out = vec![in rt.alloc(); 0u8; MAX_KEY]?;
    match written(sign, exponent, digits.as_slice(), out.as_mut_slice()) {
        Ok(len) => {
            out.truncate(len);
            println!(rt; "{}", Hex(out.as_slice()))?;
        }
        Err(fault) => println!(rt; "no {}", fault.refused())?,
    }
    Ok(())
}

fn written(sign: Sign, exponent: i32, digits: &[u8], out: &mut [u8]) -> Result<usize, KeyFault> {
    let plan = Plan::new(&[Direction::Ascending])?;
    let values = [Value::Decimal(Decimal::new(sign, exponent, digits)?)];
    let record = Record {
        values: &values,
        texts: &[],
    };
    write_key(&plan, record, out)
}

// Prints the value of a column, counted from 1, and the output, which was `room` bytes EE.
fn column(rt: &HostRuntime, plan: &str, bytes: &str, at: &str, room: &str) -> anyhow::Result<()> {
    let columns = columns_of(rt.alloc(), plan)?;
    let bytes = bytes_of(rt.alloc(), bytes)?;
    let at = at.parse::<usize>()?;
    let mut out = vec![in rt.alloc(); 0xEEu8; room.parse::<usize>()?]?;
    match found(columns.as_slice(), bytes.as_slice(), at, out.as_mut_slice()) {
        Ok(value) => print!(rt; "{}", Shown(value))?,
        Err(fault) => print!(rt; "no {}", fault.refused())?,
    }
    println!(rt; ", {}", Hex(out.as_slice()))?;
    Ok(())
}

fn found(
    columns: &[Direction],
    bytes: &[u8],
    at: usize,
    out: &mut [u8],
) -> Result<Value, KeyFault> {
    let plan = Plan::new(columns)?;
    read_column(&plan, bytes, at, out)
}
