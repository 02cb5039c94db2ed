//! A file of a shelf.

use crate::inputs::Inputs;
use crate::rows::Rows;
use ncq_base::Shared;
use ncq_plan::Expr;
use ncq_readers::Readers;

/// The rows of an expression, with the count of its uses, what it reads and what reads it. The
/// expression shares those of the files that it reads.
/// `rows_lost` is how many rows compactions took out since an index of it was last asked for.
pub(crate) struct File {
    pub(crate) expr: Shared<Expr>,
    pub(crate) uses: u64,
    pub(crate) content: Rows,
    pub(crate) inputs: Inputs,
    pub(crate) readers: Readers,
    pub(crate) rows_lost: u64,
}

impl Drop for File {
    fn drop(self) {
        let File {
            expr,
            uses: _,
            content,
            inputs,
            readers,
            rows_lost: _,
        } = self;
        drop(expr);
        drop(content);
        drop(inputs);
        drop(readers);
    }
}
