// A line and its fields, each read as what it is to stand for.
ghost use Rattle.std.specs.Prelude.{◌≡◌, ◌≤◌, IfOk, length};

use crc32::Tables;
use fate::Fate;
use run_lines::{digits, fates};
use segment::header::Stamp;
use std::io;
use text::{line, number};

// Why a line has no answer.
#[derive(Drop)]
pub enum Failure {
    // It has the form of no vector.
    Unfit,
    // The answer was not written.
    Unwritten(io::Error),
}

impl From<io::Error> for Failure {
    fn from(e: io::Error) -> Failure {
        Failure::Unwritten(e)
    }
}

// A line, beside the tables for what it asks.
#[derive(Clone, Copy)]
pub struct Line<'a> {
    pub tables: &'a Tables,
    pub text: &'a [u8],
}

impl Line<'_> {
    pub fn field(&self, k: usize) -> &[u8] {
        line::field(self.text, k)
    }

    pub fn number(&self, k: usize) -> Result<u64, Failure> {
        number::decimal(self.field(k)).ok_or(Failure::Unfit)
    }

    // A number that is no more than the most.
    pub fn up_to(&self, k: usize, most: usize) -> Result<usize, Failure>
        ensures { IfOk result (λ n. n ≤ most) }
    {
        let v = self.number(k)?;
        if (most as u64) < v {
            return Err(Failure::Unfit);
        }
        Ok(v as usize)
    }

    pub fn word(&self, k: usize) -> Result<u32, Failure> {
        number::decimal32(self.field(k)).ok_or(Failure::Unfit)
    }

    // The number of bytes whose digits a field has, which is no more than the most.
    pub fn length(&self, k: usize, most: usize) -> Result<usize, Failure>
        ensures { IfOk result (λ n. n ≤ most) }
    {
        let n = self.field(k).len() / 2;
        if most < n {
            return Err(Failure::Unfit);
        }
        Ok(n)
    }

    // The bytes whose digits a field has, as many as the slice takes.
    pub fn bytes(&self, k: usize, out: &mut [u8]) -> Result<(), Failure>
        ensures { length out.new ≡ length out.old }
    {
        if !digits::read(self.field(k), out) {
            return Err(Failure::Unfit);
        }
        Ok(())
    }

    // TIME and KEY.
    pub fn stamp(&self, k: usize) -> Result<Stamp, Failure>
        requires { k ≤ 8 }
    {
        let time = self.number(k)?;
        let mut key = [0u8; 16];
        self.bytes(k + 1, &mut key)?;
        Ok(Stamp { time, key })
    }

    pub fn fate(&self, k: usize) -> Result<Fate, Failure>
        requires { k ≤ 4 }
    {
        fates::read(self.text, k).ok_or(Failure::Unfit)
    }
}
