use crate::{EdgeRows, FigureList, Rule, Valid, Valids};
use std::test::*;

fn can_be_shared<T: Send + Sync>() -> bool {
    true
}

#[test]
fn figures_can_be_shared_by_threads(rt: HostRuntime) {
    assert!(rt; can_be_shared::<Valid>());
    assert!(rt; can_be_shared::<Valids>());
    assert!(rt; can_be_shared::<FigureList>());
    assert!(rt; can_be_shared::<EdgeRows>());
    assert!(rt; can_be_shared::<Rule>());
}
