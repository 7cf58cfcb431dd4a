ghost use Rattle.std.specs.Prelude.{◌≡◌, IfOk};
ghost use Rattle.c_check_values.specs.Agreement.{AgreesWith};
ghost use Rattle.c_rules.specs.Declarators.{type_of_spec};
ghost use Rattle.c_rules.specs.Names.{is_among};
ghost use Rattle.c_rules.specs.Scopes.{tag_number};
ghost use Rattle.c_check_values.specs.View.{env_of};
ghost use Rattle.c_syntax.specs.View.{spec_of};
ghost use Rattle.c_tree.specs.View.{ctype_of};

use c_check_values::{C1, C2, CType, CheckError, Environment, IntType};
use c_syntax::Spec;

/// The type that specifiers name (C99 6.7.2). A tag that is mentioned names a struct or an enum throughout (6.7.2.3
/// paragraph 1). An enumerated type is int, and its tag is declared before.
pub fn type_of_spec(env: &Environment<'_>, at: u32, spec: &Spec) -> Result<CType, CheckError>
    ensures { AgreesWith ctype_of result (type_of_spec (env_of env.now) at (spec_of spec.now)) }
{
    match spec {
        Spec::Void => Ok(CType::Void),
        Spec::Char => Ok(CType::Int(IntType::Char)),
        Spec::Uchar => Ok(CType::Int(IntType::Uchar)),
        Spec::Int => Ok(CType::Int(IntType::Int)),
        Spec::Uint => Ok(CType::Int(IntType::Uint)),
        Spec::Struct(x) => {
            let tag = x.name.as_slice();
            if env.is_enum(tag) {
                return Err(CheckError::At(C2, x.at));
            }
            Ok(CType::Struct(env.tag_number(tag)))
        }
        Spec::Enum(x) => {
            if !env.is_enum(x.name.as_slice()) {
                return Err(CheckError::At(C1, at));
            }
            Ok(CType::Int(IntType::Int))
        }
    }
}
