// The ends of flags.
ghost use Rattle.std.specs.Prelude.{◌≡◌, not};
ghost use Rattle.qbs_base.specs.declared.scalar.Scalar.TheVariants as scalars;
ghost use Rattle.kernel_lang.specs.Running.{source_scalar};

/// What the variable of a flag is, from whether nothing sets it and whether it is kept by its
/// opposite.
pub fn flag_end(none: bool, opposite: bool) -> bool
    ensures { scalars.Bool result ≡ source_scalar opposite (scalars.Bool (not none)) }
{
    none == opposite
}
