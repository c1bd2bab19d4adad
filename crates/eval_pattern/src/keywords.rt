//! The identifiers that have a meaning of their own in patterns and templates.

ghost use Rattle.std.specs.Prelude.{◌≡◌, IfOk, option_map};
ghost use Rattle.eval_pattern.specs.Keywords.{is_form, is_ellipsis, leading, first_ellipsis};

use base_data::library::LibName;
use base_data::memory::Memory;
use base_data::name::Label;
use core_language::core_form::CoreForm;
use stx_object::syn::Syn;
use stx_scope::scope::Frames;

/// Whether what an identifier stands for is this keyword.
pub fn is_form(form: CoreForm, label: &Option<Label>) -> bool
    ensures { result ≡ is_form form label.now }
{
    match label {
        None => false,
        Some(label) => {
            label.0.number == u64::from(form.number()) && *label.0.library == LibName::Core
        }
    }
}

/// Whether a form is an ellipsis.
fn is_ellipsis(form: &Syn, frames: &Frames) -> Result<bool, Memory>
    ensures { IfOk result (λ b. b ≡ is_ellipsis frames.now form.now) }
{
    let label = frames.stands(form)?;
    Ok(is_form(CoreForm::Ellipsis, &label))
}

/// How many ellipses these forms begin with.
fn leading(forms: &[Syn], frames: &Frames) -> Result<usize, Memory>
    ensures { IfOk result (λ n. n ≡ leading frames.now forms.now) }
{
    let mut count = 0;
    for form in forms {
        if !is_ellipsis(form, frames)? {
            return Ok(count);
        }
        count += 1;
    }
    Ok(count)
}

/// The ellipsis that these forms begin with.
pub(crate) fn first_ellipsis<'a>(
    forms: &'a [Syn],
    frames: &Frames,
) -> Result<Option<&'a Syn>, Memory>
    ensures { IfOk result (λ e. option_map (λ t. t.now) e ≡ first_ellipsis frames.now forms.now) }
{
    let Some((form, _)) = forms.split_first() else {
        return Ok(None);
    };
    if is_ellipsis(form, frames)? {
        Ok(Some(form))
    } else {
        Ok(None)
    }
}
