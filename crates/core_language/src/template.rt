//! Templates of `syntax` (libraries report 12.4).

use base_data::name::Label;
use std::marker::Model;
use stx_object::syn::Syn;

/// A template.
#[derive(Drop)]
#[cycle(template)]
pub struct Template {
    pub node: TemplateNode,
}

/// What a template is.
#[derive(Drop)]
#[cycle(template)]
pub enum TemplateNode {
    /// A pattern variable, with its depth.
    Variable(Label, u32),
    /// A part without pattern variables.
    Constant(Syn),
    /// The items, and the tail.
    List(Vec<TemplateItem>, Box<Template>),
    Vector(Vec<TemplateItem>),
}

/// An item, with so many ellipses behind it.
#[derive(Drop)]
#[cycle(template)]
pub struct TemplateItem {
    pub template: Template,
    pub ellipses: u32,
}

impl Model for Template {
    ghost use Rattle.core_language.specs.Template.{PlainTemplate, template_size};
    ghost use Rattle.core_language.specs.TemplateCode.{template_code};

    ghost Value = { PlainTemplate };

    ghost coded = { template_code };

    ghost use Rattle.core_language.specs.TemplateView.{seen};

    ghost view = { λ t. seen t.node };

    ghost size = { template_size };

    ghost use Rattle.core_language.specs.TemplateFalls.{seen_falls};

    ghost size_decreases = { λ t h. seen_falls t.node };
}
