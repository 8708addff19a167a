ghost use Rattle.std.specs.Prelude.{◌≡◌, None, Some};
ghost use Rattle.ca_forms.specs.declared.context.Context.{Context};

/// Which text a form stands in: the main text outside all go blocks, the body of a go block, or that of
/// a function. It decides which takes, puts and alts may stand there.
#[derive(Clone, Copy)]
pub enum Context {
    Main,
    Go,
    Function,
}

/// Where a form stands: how many values a `recur` there takes, if one may stand there, and in which text.
#[derive(Clone, Copy)]
pub struct At {
    pub target: Option<u64>,
    pub context: Context,
}

impl At {
    /// The same outside tail position.
    pub fn inner(self) -> At
        ensures { result ≡ record self { target = None } }
    {
        At {
            target: None,
            context: self.context,
        }
    }

    /// Within the body of a go block that stands there: no `recur` goes back out.
    pub fn in_task(self) -> At
        ensures { result ≡ record self { target = None; context = Context.Go } }
    {
        At {
            target: None,
            context: Context::Go,
        }
    }

    /// In tail position of a loop over so many values.
    pub fn in_loop(self, values: u64) -> At
        ensures { result ≡ record self { target = Some values } }
    {
        At {
            target: Some(values),
            context: self.context,
        }
    }
}
