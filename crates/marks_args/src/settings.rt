// What the arguments ask for.
use crate::keyword::Keyword;
use bus::Range;
use rules::Config;

#[derive(Clone, Copy)]
pub struct Settings {
    // Which options are given, by the number of their keyword.
    given: [bool; 9],
    pub config: Config,
}

impl Settings {
    // Before any option: ports that are not used are 0:0.
    pub(crate) fn new(kind: u8, n: u32) -> Settings {
        let none = Range { left: 0, right: 0 };
        let config = Config {
            kind,
            n,
            p: none,
            q: none,
            r: none,
            min: 0,
            value: 0,
            severity: 0,
        };
        Settings {
            given: [false; 9],
            config,
        }
    }

    pub fn is_given(&self, keyword: Keyword) -> bool {
        self.given[keyword as usize]
    }

    pub(crate) fn give(&mut self, keyword: Keyword) {
        self.given[keyword as usize] = true;
    }
}
