// What the answer of a call of read or write means: some bytes, the end, a signal, or a failure.
#![tactic(auto)]

ghost use Rattle.std.specs.Prelude.{◌≡◌};
ghost use Rattle.transfer.specs.Transfers.{transfer_of};

// What a call of read or write moved.
#[derive(Clone, Copy, Debug, PartialEq, Eq)]
pub enum Moved {
    // So many bytes, one at least: it is to be called again for what stands behind them.
    Bytes(usize),
    // None: a read has met the end of the input, and a write has no room for more.
    End,
}

// Why a call of read or write moved no byte.
#[derive(Clone, Copy, Debug, PartialEq, Eq)]
pub enum Failure {
    // A signal came first: the call is to be made again.
    Interrupted,
    // Another error, with the system's number of it.
    Other(i32),
}

// Linux's number of the error that a signal came before a byte was moved, EINTR.
const INTERRUPTED: i32 = 4;

// What a call answered means, with errno.
pub fn meaning(got: isize, error: i32) -> Result<Moved, Failure>
    ensures { result ≡ transfer_of got error }
{
    match usize::try_from(got) {
        Ok(0) => Ok(Moved::End),
        Ok(n) => Ok(Moved::Bytes(n)),
        Err(_) if error == INTERRUPTED => Err(Failure::Interrupted),
        Err(_) => Err(Failure::Other(error)),
    }
}
