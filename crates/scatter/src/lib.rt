// Bytes scattered before storage, so that a run of lost ones is spread over many rows: written into a block by rows and read by
// columns; and the way back.
#![tactic(auto)]

ghost use Rattle.std.specs.Prelude.{◌≡◌, ◌+◌, ◌*◌, ◌<◌, ◌≤◌, length};
ghost use Rattle.base.specs.Answers.{outcome};
ghost use Rattle.base.specs.Judged.{judged};
ghost use Rattle.scatter.specs.Blocks.{scattered};
ghost use Rattle.scatter.specs.Calls.{
  most_side,
  unfit_side,
  unfit_shape,
  unfit_lengths,
  block_conditions,
  block_call,
  scatter_output,
  gather_output,
};
ghost use Rattle.scatter.specs.Steps.{Block, Part};

use base::Refusal;

// The most rows, and the most columns.
const MOST: usize = 64;

#[tactic(auto, unfolding(crate::specs::Calls::unfit_side))]
fn unfit_side(n: usize) -> bool
    ensures { result ≡ unfit_side n }
{
    n < 1 || MOST < n
}

// Condition 12.
#[tactic(auto, unfolding(crate::specs::Calls::unfit_shape))]
fn unfit_shape(rows: usize, columns: usize) -> bool
    ensures { result ≡ unfit_shape rows columns }
{
    unfit_side(rows) || unfit_side(columns)
}

// Condition 13, of a shape that was judged: its product fits.
#[tactic(auto, unfolding(crate::specs::Calls::unfit_lengths))]
fn unfit_lengths(rows: usize, columns: usize, input: usize, output: usize) -> bool
    requires { (rows ≤ most_side) × (columns ≤ most_side) }
    ensures { result ≡ unfit_lengths rows columns input output }
{
    let bytes = rows * columns;
    input != bytes || output != bytes
}

// The conditions of both calls, in their order.
#[tactic(auto, using(crate::proofs::ConditionLaws::fit_shape))]
fn judge_block(rows: usize, columns: usize, input: usize, output: usize) -> Result<(), Refusal>
    ensures { outcome result ≡ judged (block_conditions rows columns input output) }
{
    if unfit_shape(rows, columns) {
        return Err(Refusal::BlockShape);
    }
    if unfit_lengths(rows, columns, input, output) {
        return Err(Refusal::BlockLength);
    }
    Ok(())
}

// Reads one column of the rows into its place in the output, behind those that were read before it. By index: of bytes written
// through `iter_mut` with a zip, or through chunks, a proof knows nothing.
fn read_column(rows: usize, columns: usize, column: usize, input: &[u8], output: &mut [u8])
    requires { Block rows columns input.now × (column < columns) × Part (scattered rows columns input.now) (column * rows) output.old }
    ensures { Part (scattered rows columns input.now) (column * rows + rows) output.new }
{
    for row in 0..rows {
        output[column * rows + row] = input[row * columns + column];
    }
}

// Reads the rows by columns.
fn read_columns(rows: usize, columns: usize, input: &[u8], output: &mut [u8])
    requires { Block rows columns input.now × (length output.old ≡ rows * columns) }
    ensures { output.new ≡ scattered rows columns input.now }
{
    for column in 0..columns {
        read_column(rows, columns, column, input, output);
    }
}

// Writes bytes into a block by rows and reads them by columns.
// A shape goes as two numbers and no struct, here and within: the way back is the two exchanged.
pub fn scatter(rows: usize, columns: usize, input: &[u8], output: &mut [u8]) -> Result<(), Refusal>
    ensures answer { outcome result ≡ block_call rows columns input.now output.old }
    ensures output { output.new ≡ scatter_output rows columns input.now output.old }
{
    judge_block(rows, columns, input.len(), output.len())?;
    read_columns(rows, columns, input, output);
    Ok(())
}

// Writes bytes into a block by columns and reads them by rows, which undoes `scatter`: the same with rows and columns exchanged.
pub fn gather(rows: usize, columns: usize, input: &[u8], output: &mut [u8]) -> Result<(), Refusal>
    ensures answer { outcome result ≡ block_call rows columns input.now output.old }
    ensures output { output.new ≡ gather_output rows columns input.now output.old }
{
    scatter(columns, rows, input, output)
}
