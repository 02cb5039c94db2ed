//! Laws of what is made of a row. The functions do nothing: each is its contract.
ghost use Rattle.std.specs.Prelude.{◌≡◌, true};
ghost use Rattle.ncq_pyx.specs.Canonical.{is_proper};
ghost use Rattle.ncq_tree.specs.declared.model.Element.{Element};
ghost use Rattle.ncq_row.specs.Embeddings.{Row, rows_of};
ghost use Rattle.ncq_row.specs.declared.shape.Shape.{Shape};
ghost use Rattle.ncq_plan.specs.declared.expr.Expr.{Expr};
ghost use Rattle.ncq_plan.specs.declared.template.SlotTemplate.{SlotTemplate};
ghost use Rattle.ncq_plan.specs.Exprs.{World, rows_in};
ghost use Rattle.ncq_plan.specs.Templates.{constructed};
ghost use Rattle.ncq_construct.specs.Proper.{WorldIsProper, element_is_proper};
ghost use Rattle.ncq_construct.specs.Proper.{row_is_proper, rows_are_proper, template_is_named};

/// What a template makes of a row is proper, so that it can be read again from its bytes, where the
/// template's names are PYX names, no tag has two attributes of one name, and the row's values are
/// proper.
pub fn forests_are_proper()
    ensures { (template : SlotTemplate) (row : Row)
        → template_is_named template ≡ true → row_is_proper row ≡ true
        → is_proper (constructed template row) ≡ true }
{}

/// The rows of a shape in a proper element have proper values; so have the rows of an expression
/// where each element of each source is proper.
pub fn rows_are_proper()
    ensures shapes { (shape : Shape) (element : Element)
        → element_is_proper element ≡ true → rows_are_proper (rows_of shape element) ≡ true }
    ensures exprs { (expr : Expr) (world : World)
        → WorldIsProper world → rows_are_proper (rows_in expr world) ≡ true }
{}
