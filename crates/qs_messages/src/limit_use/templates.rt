// What a script uses of the limits on templates.

ghost use Rattle.std.specs.Prelude.{◌≡◌, ◌<◌, ◌^◌};
ghost use Rattle.qs_messages.specs.Templates.{template_use as template_use_of, with_item};

use qs_script::tree::{Item, Name};

/// How many templates there are, and the most formals of one, with its name: the first of those that have as many.
/// Without a template the name is empty.
#[derive(Drop)]
pub struct TemplateUse {
    pub count: u64,
    pub formals: u64,
    pub name: Name,
}

fn with_one(used: TemplateUse, item: &Item) -> TemplateUse
    requires room { used.count < 2 ^ 63 }
    ensures exact { result ≡ with_item used item.now }
{
    let Item::Template(template) = item else {
        return used;
    };
    let formals = template.formals.as_slice().len() as u64;
    if used.formals < formals {
        TemplateUse {
            count: used.count + 1,
            formals,
            name: template.name.copied(),
        }
    } else {
        TemplateUse {
            count: used.count + 1,
            formals: used.formals,
            name: used.name,
        }
    }
}

/// What the items of a script use of the limits on templates. A template counts whether or not a client is started with
/// it. Takes no memory.
pub fn template_use(items: &[Item]) -> TemplateUse
    ensures exact { result ≡ template_use_of items.now }
{
    let mut used = TemplateUse {
        count: 0,
        formals: 0,
        name: Name::new(b""),
    };
    for item in items {
        used = with_one(used, item);
    }
    used
}
