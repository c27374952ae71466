// What the window answers, and the number and values that each answer stands for.
ghost use Rattle.std.specs.Prelude.{◌≡◌};
ghost use Rattle.window.specs.Answer.{get_answer_of, change_answer_of};

use endpoint::{EndpointData, blank};
use refusals::Meaning;

// There is no last to replace (refusal 12).
#[derive(Clone, Copy)]
pub struct Empty;

// What `get` and `replace_last` say, in the terms of document 01's table, by number, as `get_answer_of` and `change_answer_of` have it.
#[derive(Clone, Copy)]
pub struct GetAnswer {
    pub number: u32,
    pub place: u32,
    pub endpoint: EndpointData,
}

#[derive(Clone, Copy)]
pub struct ChangeAnswer {
    pub number: u32,
    pub place: u32,
}

// The number, the place and the endpoint that an answer of `get` stands for.
impl From<Option<EndpointData>> for GetAnswer {
    ghost from_gives = { λ g a. a ≡ get_answer_of g };

    fn from(g: Option<EndpointData>) -> GetAnswer {
        match g {
            Some(endpoint) => GetAnswer {
                number: Meaning::Accepted as u32,
                place: 0,
                endpoint,
            },
            None => GetAnswer {
                number: Meaning::WindowRefused as u32,
                place: 0,
                endpoint: blank(),
            },
        }
    }
}

// The number and the place that an answer of `replace_last` stands for.
impl From<Result<(), Empty>> for ChangeAnswer {
    ghost from_gives = { λ c a. a ≡ change_answer_of c };

    fn from(c: Result<(), Empty>) -> ChangeAnswer {
        match c {
            Ok(()) => ChangeAnswer {
                number: Meaning::Accepted as u32,
                place: 0,
            },
            Err(Empty) => ChangeAnswer {
                number: Meaning::WindowRefused as u32,
                place: 0,
            },
        }
    }
}
