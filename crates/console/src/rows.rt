// The rows of a page, gathered for callers that have memory to give. The programs print them from the page (`say_rows`).
ghost use Rattle.std.specs.Prelude.{◌≡◌, ◌⊎◌, ◌++◌, IfOk, vec_len};
ghost use Rattle.console.specs.Rows.{StartsWithRow, rows_bytes};

use crate::split_row;
use meaning::Row;
use std::alloc::{AllocError, Global};

// The rows at the front of a page, as many as are asked for and there, and the bytes after them.
pub fn split_rows(alloc: Global, page: &[u8], count: usize) -> Result<(Vec<Row>, &[u8]), AllocError>
    ensures rows { IfOk result (λ found. rows_bytes found.0.items ++ found.1.now ≡ page.now) }
    ensures count { IfOk result (λ found. (vec_len found.0 ≡ count) ⊎ ¬ (StartsWithRow found.1.now)) }
{
    let mut rows = Vec::new(alloc);
    let mut rest = page;
    for _ in 0..count {
        let Some((row, left)) = split_row(rest) else {
            break;
        };
        rows.push(row)?;
        rest = left;
    }
    Ok((rows, rest))
}

#[cfg(test)]
mod tests {
    use super::*;
    use meaning::Stage;
    use report::ROW_LENGTH;
    use std::test::Fail;

    // The sample log's rows at 31, and a byte that starts no row.
    const PAGE: [u8; 37] = [
        1, 0, 5, 0, 0, 0, 3, 0, 0, 0, 9, 0, 0, 0, 10, 0, 0, 0, //
        2, 0, 5, 0, 0, 0, 3, 0, 0, 0, 9, 0, 0, 0, 30, 0, 0, 0, //
        1,
    ];

    fn row(stage: Stage, time: u32) -> Row {
        Row {
            stage,
            schema: 0,
            key: 5,
            privileged: 3,
            liable: 9,
            time,
        }
    }

    #[test]
    fn sample_rows(rt: HostRuntime) -> Result<(), Fail> {
        let rows = [row(Stage::Created, 10), row(Stage::Detached, 30)];
        for (count, there) in [(0, 0), (1, 1), (2, 2), (3, 2)] {
            let (found, rest) = split_rows(rt.alloc(), &PAGE, count)?;
            assert_eq!(rt; &found[..], &rows[..there], "of {count}");
            assert_eq!(rt; rest, &PAGE[ROW_LENGTH * there..], "after {count}");
        }
        Ok(())
    }
}
