//! What entries are made of.
ghost use Rattle.std.specs.Prelude.{◌≡◌, IsTrue, ◌↔◌};

use ncq_base::FileId;
use ncq_plan::{Checks, SlotTemplate, same_checks, same_template};
use std::hash::{Hash, Hasher};

/// What the entries of a notice are made of: the rows of a file up to a change, those behind the
/// mark or all of them where there is none; the checks that such a row passes; and the template of
/// what it answers.
pub struct NoticeKey {
    pub file: FileId,
    pub residual: Checks,
    pub template: SlotTemplate,
    pub mark: Option<u64>,
    pub change: u64,
}

impl Drop for NoticeKey {
    fn drop(self) {
        let NoticeKey {
            file: _,
            residual,
            template,
            mark: _,
            change: _,
        } = self;
        drop(residual);
        drop(template);
    }
}

/// Whether the two are one key. The numbers are compared first: they differ most often.
fn same_key(a: &NoticeKey, b: &NoticeKey) -> bool
    ensures { IsTrue result ↔ (a.now ≡ b.now) }
{
    a.file.0 == b.file.0
        && a.change == b.change
        && same_mark(a.mark, b.mark)
        && same_template(&a.template, &b.template)
        && same_checks(a.residual.as_slice(), b.residual.as_slice())
}

fn same_mark(a: Option<u64>, b: Option<u64>) -> bool
    ensures { IsTrue result ↔ (a ≡ b) }
{
    a == b
}

impl PartialEq for NoticeKey {
    ghost use Rattle.ncq_base.specs.Exact.{exact, exact_per};
    ghost use Rattle.ncq_cache.specs.contracts.key.NoticeKey.{the_row};

    ghost eq = { exact the_row.coded };

    ghost laws = { exact_per the_row.coded };

    fn eq(&self, other: &NoticeKey) -> bool {
        same_key(self, other)
    }
}

impl Eq for NoticeKey {
    ghost use Rattle.ncq_base.specs.Exact.{exact_equiv};
    ghost use Rattle.ncq_cache.specs.contracts.key.NoticeKey.{the_row};

    ghost laws = { exact_equiv the_row.coded };
}

/// A key is placed by its file and its change alone: of the keys that have both there are 64 at
/// most, and to read the checks and the template costs more than to compare them now and then.
impl Hash for NoticeKey {
    ghost use Rattle.ncq_base.specs.Exact.{exact_alike};
    ghost use Rattle.ncq_cache.specs.Fed.{numbers_fed};
    ghost use Rattle.ncq_cache.specs.contracts.key.NoticeKey.{the_row};

    ghost hash_input = { numbers_fed };

    ghost respects_eq = { exact_alike the_row.coded numbers_fed };

    fn hash<H: Hasher>(&self, state: &mut H) {
        state.write_u64(self.file.0);
        state.write_u64(self.change);
    }
}
